// What steps are taken with.
use arithmetic::Arithmetic;
use pages::Reader;

// The pages that a step reads, and the arithmetic that it computes with.
#[derive(Drop)]
pub(crate) struct Machine<'a, R: Reader, A: Arithmetic> {
    pub(crate) reader: &'a R,
    pub(crate) arithmetic: &'a A,
}
