// A text to try, under a name.

#[derive(Clone, Copy)]
pub struct Case {
    pub name: &'static str,
    pub text: &'static [u8],
}
