//! Small evenings that were written by hand.
mod draft;
mod pages;
mod plan;
mod slips;
