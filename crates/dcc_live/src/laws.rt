//! A law of what is live. The function only states it by its contract, and does nothing.

ghost use Rattle.dcc_live.specs.Start.{BeginsLiveIsLive};

/// The search along edges finds just the locations that are live where a graph begins.
pub fn begins_live_is_live()
    ensures { BeginsLiveIsLive }
{}
