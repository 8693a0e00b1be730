//! The reader against texts with known answers.
mod changes;
mod worked;
