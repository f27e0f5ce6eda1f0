// Reading what the reports share: TP-Parameter-Indicator and the parameters that it announces (TS 23.040 §9.2.3.27).
// Each field read is taken apart with let-else, as document 01 has it.
ghost use Rattle.std.specs.Prelude.{◌≡◌, ok_or};
ghost use Rattle.octets.specs.declared.Refusal.TheVariants.{OctetsEnd};
ghost use Rattle.layout.specs.Layout.{read_from};
ghost use Rattle.layout.specs.Internal.{indicator_at, placed};
ghost use Rattle.parameters.specs.Layout.{announced, parameters};
ghost use Rattle.parameters.specs.Internal.{counted};

use crate::ParameterOctets;
use octets::Place;

// The parameters that were announced, how many octets the user data have, and the place after these.
#[derive(Clone, Copy, Debug, PartialEq, Eq)]
pub struct ParametersRead {
    pub parameters: ParameterOctets,
    pub octets: usize,
    pub next: Place,
}

// An indicator's first octet, and the place after its extension octets.
pub fn read_indicator(data: &[u8], place: Place) -> Option<(u8, Place)>
    ensures { ok_or result OctetsEnd ≡ indicator_at «data».now place }
{
    let octets = data.get(place.at..)?;
    let last = octets.iter().position(|x| *x / 128 % 2 != 1)?;
    let at = place.at + last + 1;
    Some((octets[0], Place { at }))
}

// An octet that is there if it is announced.
pub fn read_optional(data: &[u8], place: Place, is_announced: bool) -> Option<(Option<u8>, Place)>
    ensures { ok_or result OctetsEnd ≡ placed (read_from (announced is_announced) «data».now place.at) }
{
    if is_announced {
        let Some((x, next)) = place.octet(data) else {
            return None;
        };
        return Some((Some(x), next));
    }
    Some((None, place))
}

// The parameters that an indicator announces; none where the octets end.
pub fn read_parameters(data: &[u8], place: Place, indicator: u8) -> Option<ParametersRead>
    ensures { ok_or result OctetsEnd ≡ counted (placed (read_from (parameters indicator) «data».now place.at)) }
{
    let Some((pid, p1)) = read_optional(data, place, indicator % 2 == 1) else {
        return None;
    };
    let Some((dcs, p2)) = read_optional(data, p1, indicator / 2 % 2 == 1) else {
        return None;
    };
    let Some((udl, p3)) = read_optional(data, p2, indicator / 4 % 2 == 1) else {
        return None;
    };
    let parameters = ParameterOctets { pid, dcs, udl };
    let Some(length) = udl else {
        return Some(ParametersRead {
            parameters,
            octets: 0,
            next: p3,
        });
    };
    let octets = coding::user_data_octets(coding::user_data_coding(dcs.unwrap_or(0)), length);
    let Some((_, next)) = p3.span(data, octets) else {
        return None;
    };
    Some(ParametersRead {
        parameters,
        octets,
        next,
    })
}
