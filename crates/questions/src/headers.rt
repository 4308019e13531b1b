// What the file header says.
use rules::Spelling;
use words::Order;

// The version and the form are the numbers of their digits; the script is its letter.
#[derive(Clone, Copy)]
pub struct Header {
    pub spelling: Spelling,
    pub version: u32,
    pub form: u32,
    pub order: Order,
    pub script: u32,
    pub recordings: u32,
}
