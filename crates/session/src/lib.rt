// A session: it holds one program, which is read, printed and run by calls that answer or decline.
#![tactic(auto)]

mod calls;
pub mod refusal;
pub mod series;
pub mod session;
