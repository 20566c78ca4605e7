//! Publications on one subject that stand one behind another at the beginning of a text, read in one pass.
//!
//! ```text
//! let text = b"PUB a 2\r\nhi\r\nPUB a 2\r\nho\r\nPING\r\n";
//! if let Some(mut run) = LentRun::new(text, 32, true) {
//!     while let Some(ahead) = run.peek() {
//!         serve(&ahead.publication);
//!         run.pass(&ahead);
//!     }
//!     assert_eq!(rt; run.left(), 6);
//! }
//! ```
//!
//! Where a line has to come next, a text that begins with such publications is read as just these, in order, and
//! then as what stands behind them (`run_is_read`). So whoever scans them may use up their bytes at once.
//!
//! Read first: [`LentRun`], [`LentAhead`]. The files in reading order: `runs` scans the publications, `lines`
//! judges the line of one, and `cuts` cuts a text; `laws` has what holds of the definitions.
#![tactic(auto)]

mod cuts;
mod laws;
mod lines;
mod runs;

pub use laws::{publication_is_read, run_is_found, run_is_read};
pub use runs::{LentAhead, LentRun, may_be_on};
