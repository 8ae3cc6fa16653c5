// The server: a form is checked, and run on the sheets of both sides.
#![tactic(auto)]

mod check;
mod checked;
mod labels;
mod outputs;
mod read;
mod runs;
mod sheets;

pub use checked::CheckedForm;
