//! The jobs, each by itself: what it makes of the texts.

mod golem;

pub(crate) use golem::golem;
