//! A bound in octets.
ghost use Rattle.std.specs.Prelude.{◌≡◌, ◌≤◌, ◌*◌, ◌-◌, nat_lt};
ghost use Rattle.std.specs.Option.{ForSome, option_map};
ghost use Rattle.hickory_resolver_cache.specs.Octets.{most_of};

/// How many octets the entries of a cache weigh at the most, and how many they do.
#[derive(Clone, Copy)]
pub struct Octets {
    pub most: u64,
    pub held: u64,
}

impl Octets {
    // Whether so much is more than a 256th of the bound.
    pub fn is_heavy(self, weight: u64) -> bool
        ensures { result ≡ nat_lt self.most (256 * weight) }
    {
        self.most / 256 < weight
    }
}

// A bound of which nothing is held, where there is one.
pub fn none_held(most: Option<u64>) -> Option<Octets>
    ensures { result ≡ option_map (λ m. record { most = m; held = 0 }) most }
{
    match most {
        Some(most) => Some(Octets { most, held: 0 }),
        None => None,
    }
}

// The bound, where there is one.
pub fn most(octets: Option<Octets>) -> Option<u64>
    ensures { result ≡ most_of octets }
{
    match octets {
        Some(octets) => Some(octets.most),
        None => None,
    }
}

// The same bound once so much has left.
pub fn lowered(octets: Option<Octets>, gone: u64) -> Option<Octets>
    requires { ForSome octets (λ o. gone ≤ o.held) }
    ensures { result ≡ option_map (λ o. record { most = o.most; held = o.held - gone }) octets }
{
    match octets {
        Some(octets) => Some(Octets {
            most: octets.most,
            held: octets.held - gone,
        }),
        None => None,
    }
}
