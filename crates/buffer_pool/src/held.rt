//! What a frame holds.

ghost use Rattle.std.specs.Prelude.{◌≡◌, ◌↔◌, Some, IsTrue};
ghost use Rattle.buffer_pool.specs.Slots.{is_dirty, is_durable, log_suits, page_of, suits};

/// A page in a frame: its number, and where it is dirty the number of the log change that it waits for.
#[derive(Clone, Copy, Debug)]
pub(crate) struct Held {
    pub page: u64,
    pub log: Option<u64>,
}

/// Which frames are looked for: those with a clean page, or those with a dirty one whose log is durable.
#[derive(Clone, Copy, Debug)]
pub(crate) enum Wanted {
    Clean,
    Cleanable { durable: u64 },
}

/// Whether the frame holds that page.
pub(crate) fn holds(slot: &Option<Held>, page: u64) -> bool
    ensures { IsTrue result ↔ (page_of slot.now ≡ Some page) }
{
    match slot {
        Some(held) => held.page == page,
        None => false,
    }
}

/// Whether the frame holds a dirty page.
pub(crate) fn is_dirty(slot: &Option<Held>) -> bool
    ensures { result ≡ is_dirty slot.now }
{
    match slot {
        Some(held) => held.log.is_some(),
        None => false,
    }
}

/// Whether the frame holds a page that is wanted.
pub(crate) fn suits(slot: &Option<Held>, wanted: Wanted) -> bool
    ensures { result ≡ suits wanted slot.now }
{
    match slot {
        Some(held) => log_suits(held.log, wanted),
        None => false,
    }
}

fn log_suits(log: Option<u64>, wanted: Wanted) -> bool
    ensures { result ≡ log_suits wanted log }
{
    match log {
        Some(number) => is_durable(number, wanted),
        None => matches!(wanted, Wanted::Clean),
    }
}

fn is_durable(number: u64, wanted: Wanted) -> bool
    ensures { result ≡ is_durable wanted number }
{
    match wanted {
        Wanted::Clean => false,
        Wanted::Cleanable { durable } => number <= durable,
    }
}
