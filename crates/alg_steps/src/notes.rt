/// What is printed before the result of a goal: the procedure that was asked in place of the one of the script.
#[derive(Clone, Copy, Debug, PartialEq, Eq)]
pub enum Note {
    RingNf,
    AbelNf,
}
