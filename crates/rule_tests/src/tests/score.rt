//! Scores by the table, comparison and rankings, on worked rows and beside a plain twin.
mod comparison;
mod ranking;
mod score;
mod twin;
