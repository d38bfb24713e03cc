//! The generated scenarios of numbers, and their summaries.

use crate::page::Page;
use crate::stopped::Done;
use block_data::digest;
use generated::{gen_scenario, summary, summary_of};
use std::alloc::Global;

/// Shows the length and the digest of a number's scenario.
pub fn show_generated(alloc: Global, page: &mut Page, number: u32) -> Done {
    let text = gen_scenario(alloc, number)?;
    page.show("length", &text.len());
    page.line(
        "digest",
        hex::encode(alloc, digest(text.bytes()).as_slice())?.as_bytes(),
    );
    Ok(())
}

/// Shows how the runs of the number 7 end, and how the same is written of digests of zeros.
pub fn show_summary(alloc: Global, page: &mut Page) -> Done {
    page.line("summary", summary(alloc, 7)?.bytes());
    page.line("zeros", summary_of(alloc, 7, &[[0; 32]; 8])?.bytes());
    Ok(())
}
