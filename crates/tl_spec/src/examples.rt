//! Worked examples, as laws that compute.
mod clean;
mod pages;
mod searches;
mod selectors;
mod steps;
