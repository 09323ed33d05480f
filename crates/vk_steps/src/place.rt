// Where code runs.

use vk_code::Code;
use vk_object::{Entry, Image};

/// Where code runs: an entry of an image, with its number and its code, how many turns a loop may make, and how deep calls may go
/// from here.
#[derive(Clone, Copy)]
pub struct Place<'a> {
    pub image: &'a Image,
    pub turns: u32,
    pub depth: u32,
    pub number: u32,
    pub entry: &'a Entry,
    pub code: &'a Code,
}
