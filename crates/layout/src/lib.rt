// Messages as data: a layout's strings, its reader and canonical octets (specs/, proofs/); and the first octet of a message.
#![tactic(auto)]

ghost use Rattle.std.specs.Prelude.{◌≡◌, [], ◌∷◌, ◌<◌};
ghost use Rattle.layout.specs.Layout.{first_octet};

// TP-MTI of a message and of the report that answers it (TS 23.040 §9.2.3.1). Numbers: a record keeps the bits it was
// given, which may be of no message, and the writer refuses them (3).
pub const MTI_DELIVER: u8 = 0;

pub const MTI_SUBMIT: u8 = 1;

pub const MTI_STATUS_REPORT: u8 = 2;

// What a reader gives: the message, and the number of escapes in its text that led to no character of the extension table.
#[derive(Clone, Copy, Debug)]
pub struct MessageRead<M> {
    pub message: M,
    pub replaced_escapes: usize,
}

// The message's own, and nothing replaced. By hand: an edit plants a wrong body.
impl<M: Default> Default for MessageRead<M> {
    ghost is_default = { λ r. M.is_default r.message × (r.replaced_escapes ≡ 0) };

    fn default() -> Self {
        MessageRead {
            message: M::default(),
            replaced_escapes: 0,
        }
    }
}

// A first octet of TP-MTI and its flags, from bit 7 down to bit 2.
pub fn first_octet(
    mti: u8,
    bit7: bool,
    bit6: bool,
    bit5: bool,
    bit4: bool,
    bit3: bool,
    bit2: bool,
) -> u8
    requires { mti < 4 }
    ensures { result ≡ first_octet mti ((7, bit7) ∷ (6, bit6) ∷ (5, bit5) ∷ (4, bit4) ∷ (3, bit3) ∷ (2, bit2) ∷ []) }
{
    mti + octets::flag(bit7, 128)
        + octets::flag(bit6, 64)
        + octets::flag(bit5, 32)
        + octets::flag(bit4, 16)
        + octets::flag(bit3, 8)
        + octets::flag(bit2, 4)
}
