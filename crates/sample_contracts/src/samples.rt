//! Contracts to begin with.

ghost use Rattle.std.specs.Prelude.{◌≡◌};
ghost use Rattle.sample_contracts.specs.Samples.{text_of};

/// A swap: whoever offers first gets an invitation for a second, and what both give changes places.
pub const SWAP: &str = "let z = null; let first = null;
const second = (seat, args, data) => {
  z.atomicRearrange([[first, seat, first.getProposal().give], [seat, first, first.getProposal().want]]);
  first.exit(); seat.exit(); return 'done';
};
const open = (seat, args, data) => { first = seat; return z.makeInvitation(second, 'match', null); };
const start = (zcf, priv) => { z = zcf; return { creatorInvitation: zcf.makeInvitation(open, 'first', null) }; };
";

/// A sale to the highest bid, for the second highest, or for what was asked.
pub const AUCTION: &str = "let z = null; let sell = null; let bids = [];
const bid = (seat, args, data) => { bids = push(bids, seat); return 'bid'; };
const close = (data) => {
  const ask = sell.getProposal().want.Ask;
  let best = null; let top = ask.value - 1n; let pay = ask.value;
  for (const s of bids) { if (!s.hasExited()) {
    const v = s.getProposal().give.Bid.value;
    if (v > top) { if (best !== null) { pay = top; } top = v; best = s; } else if (v > pay) { pay = v; }
  } }
  if (best !== null) {
    const cost = AmountMath.make(ask.brand, pay);
    z.atomicRearrange([[sell, best, sell.getProposal().give], [best, sell, { Bid: cost }, { Ask: cost }]]);
  }
  sell.exit();
  for (const s of bids) { if (!s.hasExited()) { s.exit(); } }
  return 'closed';
};
const invite = (data) => { return z.makeInvitation(bid, 'bid', null); };
const open = (seat, args, data) => { sell = seat; return Far('auction', { invite: invite, close: close }, null); };
const start = (zcf, priv) => { z = zcf; return { creatorInvitation: zcf.makeInvitation(open, 'first', null) }; };
";

/// A covered call: a swap whose first offer lasts until a deadline.
pub const CALL: &str = "let z = null; let first = null;
const second = (seat, args, data) => {
  z.atomicRearrange([[first, seat, first.getProposal().give], [seat, first, first.getProposal().want]]);
  first.exit(); seat.exit(); return 'done';
};
const open = (seat, args, data) => { const t = seat.getProposal().exit.afterDeadline.deadline; first = seat; return z.makeInvitation(second, 'match', null); };
const start = (zcf, priv) => { z = zcf; return { creatorInvitation: zcf.makeInvitation(open, 'first', null) }; };
";

/// A pool of two brands, which trades at a constant product less a fee of 0.3 in a hundred.
pub const POOL: &str = "let z = null; let pool = null;
const add = (seat, args, data) => { z.atomicRearrange([[seat, pool, seat.getProposal().give]]); seat.exit(); return 'added'; };
const swap = (seat, args, data) => {
  const g = seat.getProposal().give.In; const o = seat.getProposal().want.Out;
  const x = pool.getAmountAllocated('X', g.brand).value; const y = pool.getAmountAllocated('Y', o.brand).value;
  const i = g.value * 9970n;
  const out = AmountMath.make(o.brand, i * y / (x * 10000n + i));
  z.atomicRearrange([[seat, pool, { In: g }, { X: g }], [pool, seat, { Y: out }, { Out: out }]]);
  seat.exit(); return out;
};
const offers_add = (data) => { return z.makeInvitation(add, 'add', null); };
const offers_swap = (data) => { return z.makeInvitation(swap, 'swap', null); };
const start = (zcf, priv) => {
  z = zcf; pool = zcf.makeEmptySeatKit(null).zcfSeat;
  return { publicFacet: Far('pool', { add: offers_add, swap: offers_swap }, null) };
};
";

/// Which sample.
#[derive(Clone, Copy, PartialEq, Eq)]
pub enum Sample {
    Swap,
    Auction,
    Call,
    Pool,
}

/// The text of a sample.
pub fn sample_text(sample: Sample) -> &'static str
    ensures { result.now ≡ text_of sample }
{
    match sample {
        Sample::Swap => SWAP,
        Sample::Auction => AUCTION,
        Sample::Call => CALL,
        Sample::Pool => POOL,
    }
}
