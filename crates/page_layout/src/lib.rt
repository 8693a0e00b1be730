//! Pages of headings, paragraphs and tables, as plain text or as HTML: the same words in either format. Nothing here takes
//! memory.
//!
//! ```rust
//! let mut text = PageText::new();
//! push_heading(&mut text, Format::Html, Level::Title, b"Ranking");
//! push_row(&mut text, Format::Html, &columns, &[b"1", b"Anna and Berta"]);
//! write_text(&mut writer, text.as_slice())?;
//! ```
#![tactic(auto)]

mod block;
mod cell;
pub mod columns;
mod escape;
mod format;
mod linked;
mod page;
mod style;
mod table;
mod text;

pub use block::{push_caption, push_heading, push_paragraph};
pub use escape::push_html;
pub use format::{Align, Column, Content, Format, Level, Section};
pub use linked::push_linked_row;
pub use page::{push_page_end, push_page_start, push_section_end, push_section_start};
pub use table::{push_row, push_table_end, push_table_start, push_titles};
pub use text::{PAGE_BYTES, PageText, push_bytes};
