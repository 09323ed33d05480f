// The tokens of a text as the grammar reads them.

use std::alloc::Global;
use std::process::Abort;
use std::test::Fail;
use vk_lex::lex;
use vk_parse_words::{Syms, classify};
use vk_tokens::Tokens;

/// The tokens of a text, and what the grammar reads.
#[derive(Drop)]
pub(crate) struct Front {
    pub(crate) tokens: Tokens,
    pub(crate) syms: Syms,
}

/// The tokens of a text that has some.
pub(crate) fn front_of(rt: &impl Abort, alloc: Global, text: &str) -> Result<Front, Fail> {
    assert!(rt; text.len() < 100000, "{text}");
    let tokens = lex(alloc, text.as_bytes()).map_err(|_| "no tokens")?;
    let syms = classify(alloc, &tokens).map_err(|_| "no memory")?;
    Ok(Front { tokens, syms })
}

/// A text between repeated ones.
pub(crate) fn tower(
    alloc: Global,
    open: &str,
    times: u32,
    middle: &str,
    close: &str,
) -> Result<String, Fail> {
    let mut text = String::new(alloc);
    for _ in 0..times {
        text.push_str(open)?;
    }
    text.push_str(middle)?;
    for _ in 0..times {
        text.push_str(close)?;
    }
    Ok(text)
}
