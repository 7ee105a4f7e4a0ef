//! C sources of the first form: `#ifdef`, `#ifndef` and `#endif` alone.

mod form;
mod lines;

pub use form::first_directives;
