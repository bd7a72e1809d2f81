//! Where steps of threads may be held up.

/// It is called between the steps of threads, with no lock held. It means nothing: a test holds sessions by it.
pub trait Gate {
    /// Comes before a step of the session, which has made so many steps.
    fn before(&self, session: u32, step: u64);
}

/// A gate that holds nobody.
#[derive(Clone, Copy, Debug, Drop)]
pub struct OpenGate;

impl Gate for OpenGate {
    fn before(&self, _session: u32, _step: u64) {}
}
