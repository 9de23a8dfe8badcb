// What a case asks for.
use crate::body::BadCase;
use crate::folds::Fold;

#[derive(Clone, Copy, Debug, PartialEq, Eq)]
pub enum Operation {
    Show,
    Check,
    Write,
    WriteLengths,
    Look,
    Load,
    List,
    Judge,
    Fold(Fold),
}

// The operation of a letter.
impl TryFrom<u8> for Operation {
    type Error = BadCase;

    fn try_from(letter: u8) -> Result<Operation, BadCase> {
        match letter {
            b's' => Ok(Operation::Show),
            b't' => Ok(Operation::Check),
            b'w' => Ok(Operation::Write),
            b'x' => Ok(Operation::WriteLengths),
            b'k' => Ok(Operation::Look),
            b'd' => Ok(Operation::Load),
            b'l' => Ok(Operation::List),
            b'j' => Ok(Operation::Judge),
            b'f' => Ok(Operation::Fold(Fold::Sum)),
            b'g' => Ok(Operation::Fold(Fold::Weakest)),
            b'r' => Ok(Operation::Fold(Fold::Rings)),
            b'q' => Ok(Operation::Fold(Fold::RingsWeakest)),
            _ => Err(BadCase),
        }
    }
}
