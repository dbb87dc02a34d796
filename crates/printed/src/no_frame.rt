// Where the stream goes on with no frame.
use fields::FieldFault;

/// The offset of a head with which no frame begins: the head is not all there, its tag names no frame, it is of an opening and its length is not 88, or the
/// value is cut short.
#[derive(Clone, Copy, Debug, PartialEq, Eq)]
pub struct NoFrame {
    pub at: usize,
}

impl From<FieldFault> for NoFrame {
    ghost use Rattle.std.specs.Prelude.{◌≡◌};
    ghost use Rattle.fields.specs.Refusals.{field_refusal};

    ghost from_gives = { λ e r. r.at ≡ (field_refusal e).place };

    fn from(fault: FieldFault) -> NoFrame {
        let (FieldFault::NoHead(at)
        | FieldFault::WrongTag(at)
        | FieldFault::WrongLength(at)
        | FieldFault::CutShort(at)) = fault;
        NoFrame { at }
    }
}
