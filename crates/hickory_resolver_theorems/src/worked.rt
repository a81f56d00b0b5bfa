//! Worked cases of the definitions.
ghost use Rattle.hickory_resolver_theorems.specs.Worked.{EvictionCases, LifetimeCases, AttemptCases, SpecialCases, AliasCases};
ghost use Rattle.hickory_resolver_theorems.specs.WorkedServices.{ServiceCases};
ghost use Rattle.hickory_resolver_theorems.specs.WorkedLoop.{LoopCases};
ghost use Rattle.hickory_resolver_theorems.specs.WorkedAliases.{AliasLifetimeCases};
ghost use Rattle.hickory_resolver_theorems.specs.WorkedRun.{RunCases};
ghost use Rattle.hickory_resolver_theorems.specs.WorkedInterleaved.{InterleavedCases};
ghost use Rattle.hickory_resolver_theorems.specs.WorkedRequests.{RequestCases};

/// What the definitions say of small caches, bounds, names and messages.
pub fn worked_cases()
    ensures eviction { EvictionCases }
    ensures lifetimes { LifetimeCases }
    ensures attempts { AttemptCases }
    ensures special { SpecialCases }
    ensures aliases { AliasCases }
    ensures services { ServiceCases }
    ensures loops { LoopCases }
    ensures alias_lifetimes { AliasLifetimeCases }
    ensures runs { RunCases }
    ensures interleaved { InterleavedCases }
    ensures requests { RequestCases }
{}
