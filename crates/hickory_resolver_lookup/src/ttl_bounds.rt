//! Bounds on times to live.
ghost use Rattle.std.specs.Prelude.{◌≡◌, ◌≤◌, Some, unwrap_or};
ghost use Rattle.hickory_resolver_model.specs.Bounds.{bounds_or_fault, positive_bounds, negative_bounds, is_reversed, reduced_bound, reduced_bounds, clamp, day};

use hickory_proto_core::BoundsError;
use std::marker::Model;

/// The greatest time to live where no other is given: a day, in seconds.
pub const MAX_TTL: u32 = 86400;

/// For how many seconds positive and negative answers are kept at the least and at the greatest (RFC 2181,
/// section 8; RFC 2308, section 5). A least that is left out is 0, and a greatest that is left out a day.
#[derive(Clone, Copy, Debug)]
pub struct TtlBounds {
    positive_min: Option<u64>,
    negative_min: Option<u64>,
    positive_max: Option<u64>,
    negative_max: Option<u64>,
}

impl Model for TtlBounds {
    ghost use Rattle.std.specs.Prelude.{◌≡◌, None};
    ghost use Rattle.hickory_resolver_model.specs.Bounds.{BoundsValue, bounds_fault};

    ghost Value = { BoundsValue };

    ghost view = { λ b. record {
      positive_min = b.positive_min;
      negative_min = b.negative_min;
      positive_max = b.positive_max;
      negative_max = b.negative_max;
    } };

    ghost invariant = { λ b. bounds_fault (record {
      positive_min = b.positive_min;
      negative_min = b.negative_min;
      positive_max = b.positive_max;
      negative_max = b.negative_max;
    }) ≡ None };

    ghost inverse = { λ b. record {
      positive_min = b.positive_min;
      negative_min = b.negative_min;
      positive_max = b.positive_max;
      negative_max = b.negative_max;
    } };
}

impl TtlBounds {
    /// The bounds of positive and negative answers, in seconds. Bounds whose least is above their greatest
    /// are refused, those of positive answers first. Theirs are refused also where the least is above the
    /// greatest once each that is too large for a TTL has become a day.
    pub fn new(
        positive_min: Option<u64>,
        negative_min: Option<u64>,
        positive_max: Option<u64>,
        negative_max: Option<u64>,
    ) -> Result<TtlBounds, BoundsError>
        ensures { result
            ≡ bounds_or_fault (record {
              positive_min = positive_min;
              negative_min = negative_min;
              positive_max = positive_max;
              negative_max = negative_max;
            }) }
    {
        let positive = with_defaults(positive_min, positive_max);
        if is_reversed(positive) || is_reversed(reduce_both(positive)) {
            return Err(BoundsError::PositiveReversed);
        }
        if is_reversed(with_defaults(negative_min, negative_max)) {
            return Err(BoundsError::NegativeReversed);
        }
        Ok(TtlBounds {
            positive_min,
            negative_min,
            positive_max,
            negative_max,
        })
    }

    /// The same bounds, but for the least time that positive answers are kept for, in seconds. What `new` refuses
    /// is refused. These calls chain: `TtlBounds::default().with_positive_max(3_600)?.with_negative_max(60)?`.
    pub fn with_positive_min(self, seconds: u64) -> Result<TtlBounds, BoundsError>
        ensures { result ≡ bounds_or_fault (record self { positive_min = Some seconds }) }
    {
        TtlBounds::new(
            Some(seconds),
            self.negative_min,
            self.positive_max,
            self.negative_max,
        )
    }

    /// The same bounds, but for the least time that negative answers are kept for, in seconds. What `new` refuses
    /// is refused.
    pub fn with_negative_min(self, seconds: u64) -> Result<TtlBounds, BoundsError>
        ensures { result ≡ bounds_or_fault (record self { negative_min = Some seconds }) }
    {
        TtlBounds::new(
            self.positive_min,
            Some(seconds),
            self.positive_max,
            self.negative_max,
        )
    }

    /// The same bounds, but for the greatest time that positive answers are kept for, in seconds. What `new` refuses
    /// is refused.
    pub fn with_positive_max(self, seconds: u64) -> Result<TtlBounds, BoundsError>
        ensures { result ≡ bounds_or_fault (record self { positive_max = Some seconds }) }
    {
        TtlBounds::new(
            self.positive_min,
            self.negative_min,
            Some(seconds),
            self.negative_max,
        )
    }

    /// The same bounds, but for the greatest time that negative answers are kept for, in seconds. What `new` refuses
    /// is refused.
    pub fn with_negative_max(self, seconds: u64) -> Result<TtlBounds, BoundsError>
        ensures { result ≡ bounds_or_fault (record self { negative_max = Some seconds }) }
    {
        TtlBounds::new(
            self.positive_min,
            self.negative_min,
            self.positive_max,
            Some(seconds),
        )
    }

    // The least and the greatest time that a positive answer is kept for.
    pub(crate) fn positive(&self) -> (u64, u64)
        ensures bounds { result ≡ positive_bounds self.now }
        ensures ordered { result.0 ≤ result.1 }
    {
        with_defaults(self.positive_min, self.positive_max)
    }

    // The least and the greatest time that a negative answer is kept for.
    pub(crate) fn negative(&self) -> (u64, u64)
        ensures bounds { result ≡ negative_bounds self.now }
        ensures ordered { result.0 ≤ result.1 }
    {
        with_defaults(self.negative_min, self.negative_max)
    }
}

impl Default for TtlBounds {
    ghost use Rattle.std.specs.Prelude.{◌≡◌, None};

    ghost is_default = { λ b. b ≡ record {
      positive_min = None;
      negative_min = None;
      positive_max = None;
      negative_max = None;
    } };

    fn default() -> TtlBounds {
        TtlBounds {
            positive_min: None,
            negative_min: None,
            positive_max: None,
            negative_max: None,
        }
    }
}

impl PartialEq for TtlBounds {
    ghost use Rattle.std.specs.Cmp.{partial_equiv_from_equiv};
    ghost use Rattle.hickory_resolver_model.specs.Bounds.{bounds_eq, bounds_equiv};

    ghost eq = { bounds_eq };

    ghost laws = { partial_equiv_from_equiv bounds_equiv };

    fn eq(&self, other: &TtlBounds) -> bool {
        self.positive_min == other.positive_min
            && self.negative_min == other.negative_min
            && self.positive_max == other.positive_max
            && self.negative_max == other.negative_max
    }
}

impl Eq for TtlBounds {
    ghost use Rattle.hickory_resolver_model.specs.Bounds.{bounds_equiv};

    ghost laws = { bounds_equiv };
}

// The number brought between two.
pub(crate) fn clamp(bounds: (u64, u64), n: u64) -> u64
    ensures { result ≡ clamp bounds n }
{
    n.min(bounds.1).max(bounds.0)
}

// The TTL brought between two bounds, of which those that are too large for it count as a day.
pub(crate) fn clamp_ttl(bounds: (u64, u64), ttl: u32) -> u32
    ensures { result ≡ clamp (reduced_bounds bounds) ttl }
{
    clamp(reduce_both(bounds), ttl as u64) as u32
}

// The least and the greatest, where they are left out 0 and a day.
fn with_defaults(least: Option<u64>, greatest: Option<u64>) -> (u64, u64)
    ensures { result ≡ record { 0 = unwrap_or least 0; 1 = unwrap_or greatest day } }
{
    (least.unwrap_or(0), greatest.unwrap_or(MAX_TTL as u64))
}

fn is_reversed(bounds: (u64, u64)) -> bool
    ensures { result ≡ is_reversed bounds }
{
    bounds.1 < bounds.0
}

fn reduce_both(bounds: (u64, u64)) -> (u64, u64)
    ensures { result ≡ reduced_bounds bounds }
{
    (reduce(bounds.0), reduce(bounds.1))
}

// The bound, or a day where it has more than the 32 bits of a TTL.
fn reduce(bound: u64) -> u64
    ensures { result ≡ reduced_bound bound }
{
    if bound > u32::MAX as u64 {
        MAX_TTL as u64
    } else {
        bound
    }
}
