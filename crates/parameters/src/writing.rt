// Writing what the reports share: TP-Parameter-Indicator and the parameters that it announces (TS 23.040 §9.2.3.27), and the checks before it.
ghost use Rattle.std.specs.Prelude.{◌≡◌, ◌+◌, ◌≤◌, length};
ghost use Rattle.octets.specs.Lent.{Wrote};
ghost use Rattle.octets.specs.Checks.{found};
ghost use Rattle.parameters.specs.Optional.{held};
ghost use Rattle.parameters.specs.Parameters.{parameters_octets};
ghost use Rattle.parameters.specs.Checking.{indicator_checks, data_within};

use crate::ParameterOctets;
use octets::Refusal;

impl ParameterOctets {
    // Whether an indicator goes with them, and has no extension.
    pub fn check_parameter_indicator(self, indicator: u8) -> Result<(), Refusal>
        ensures { result ≡ found (indicator_checks indicator self.pid self.dcs self.udl) }
    {
        let supplied = crate::octets_held(self.pid)
            + 2 * crate::octets_held(self.dcs)
            + 4 * crate::octets_held(self.udl);
        if indicator as usize % 8 != supplied {
            return Err(Refusal::IndicatorDisagrees);
        }
        if indicator / 128 % 2 == 1 {
            return Err(Refusal::IndicatorExtended);
        }
        Ok(())
    }

    // Whether user data of so many octets go with the DCS and UDL held, and keep within a limit.
    pub fn check_data(self, limit: usize, octets: usize) -> Result<(), Refusal>
        ensures { result ≡ found (data_within limit self.dcs self.udl octets) }
    {
        let Some(length) = self.udl else {
            if octets != 0 {
                return Err(Refusal::UserDataWithoutLength);
            }
            return Ok(());
        };
        coding::check_user_data_within(limit, self.dcs.unwrap_or(0), length, octets)
    }

    // How many octets they take with so many of user data.
    pub fn size(self, octets: usize) -> usize
        requires { octets ≤ 255 }
        ensures { result ≡ held self.pid + held self.dcs + held self.udl + octets }
    {
        crate::octets_held(self.pid)
            + crate::octets_held(self.dcs)
            + crate::octets_held(self.udl)
            + octets
    }

    // Writes them and the user data from `at` on; the place after these.
    pub fn put(self, out: &mut [u8], at: usize, data: &[u8]) -> usize
        requires { at + held self.pid + held self.dcs + held self.udl + length «data».now ≤ length out.old }
        ensures { Wrote at (parameters_octets (record { pid = self.pid; dcs = self.dcs; udl = self.udl; ud = «data».now })) out.old result out.new }
    {
        let p1 = crate::put_optional(out, at, self.pid);
        let p2 = crate::put_optional(out, p1, self.dcs);
        let p3 = crate::put_optional(out, p2, self.udl);
        octets::put_octets(out, p3, data)
    }
}
