//! The texts of the program's pages, as browsers get them.
//!
//! ```rust
//! let texts = PageTexts {
//!     page: PAGE,
//!     style: STYLE,
//!     texts_script: TEXTS_SCRIPT,
//!     shared_script: SHARED_SCRIPT,
//!     table_script: TABLE_SCRIPT,
//!     boards_script: BOARDS_SCRIPT,
//!     desk_script: DESK_SCRIPT,
//!     director_script: DIRECTOR_SCRIPT,
//!     unknown_page: UNKNOWN_PAGE,
//!     wrong_host: WRONG_HOST,
//! };
//! ```
#![tactic(auto)]

mod assets;

pub use assets::{
    BOARDS_SCRIPT, DESK_SCRIPT, DIRECTOR_SCRIPT, PAGE, SHARED_SCRIPT, STYLE, TABLE_SCRIPT,
    TEXTS_SCRIPT, UNKNOWN_PAGE, WRONG_HOST,
};
