//! The addresses of a name server, shared by all who hold a copy of them.
ghost use Rattle.std.specs.Prelude.{◌≡◌, ◌≤◌, ◌<◌, ◌++◌, ◌∷◌, ◌==◌, [], length, map, All, IfOk, OnOk, IsOkUnless};
ghost use Rattle.hickory_proto_core.specs.Records.{lower_ttl};

use crate::net_error::NetError;
use crate::resource::Record;
use std::alloc::{AllocError, Global};
use std::fmt;
use std::marker::Model;
use std::sync::Arc;

/// Records that are shared: a copy, and lowering the times to live, take a time that does not depend on how many
/// they are. Contracts see the list of the records as they are now.
#[derive(Drop)]
pub struct Glue {
    shared: Arc<SharedRecords>,
    // By how many seconds the times to live are lower than those that are shared.
    age: u32,
}

impl Model for Glue {
    ghost use Rattle.std.specs.Prelude.{List, map};
    ghost use Rattle.std.specs.Arc.{arc_value};
    ghost use Rattle.hickory_proto_core.specs.Records.{RecordValue, lower_ttl};

    ghost Value = { List RecordValue };

    ghost view = { λ g. map (lower_ttl g.age) (arc_value g.shared) };
}

// Records that copies share, and a bound of their times to live.
#[derive(Drop)]
struct SharedRecords {
    records: Vec<Record>,
    longest: u32,
}

impl Model for SharedRecords {
    ghost use Rattle.std.specs.Prelude.{◌≤◌, List, All};
    ghost use Rattle.hickory_proto_core.specs.Records.{RecordValue};

    ghost Value = { List RecordValue };

    ghost view = { λ s. s.records.items };

    ghost invariant = { λ s. All (λ r. r.ttl ≤ s.longest) s.records.items };
}

impl Glue {
    /// These records, to be shared.
    pub fn new(records: Vec<Record>) -> Result<Glue, NetError>
        ensures ok { IfOk result (λ glue. glue ≡ records.items) }
        ensures err { IsOkUnless result NetError.OutOfMemory }
    {
        Glue::share(SharedRecords::new(records))
    }

    /// How many records there are.
    pub fn len(&self) -> usize
        ensures { result ≡ length self.now }
    {
        self.shared.len()
    }

    /// Whether there is none.
    pub fn is_empty(&self) -> bool
        ensures { result ≡ (length self.now == 0) }
    {
        self.len() == 0
    }

    /// A copy of the records as they are now.
    pub fn to_vec(&self) -> Result<Vec<Record>, NetError>
        ensures ok { IfOk result (λ records. records.items ≡ self.now) }
        ensures err { IsOkUnless result NetError.OutOfMemory }
    {
        self.clone()?.into_vec()
    }

    /// The records as they are now, copied where others share them.
    pub fn into_vec(self) -> Result<Vec<Record>, NetError>
        ensures ok { IfOk result (λ records. records.items ≡ self) }
        ensures err { IsOkUnless result NetError.OutOfMemory }
    {
        Ok(self.into_records()?.into_vec())
    }

    /// Lowers the time to live of each record by some seconds, to 0 at the least.
    pub fn decrement_ttl(&mut self, seconds: u32)
        ensures { self.new ≡ map (lower_ttl seconds) self.old }
    {
        let longest = self.shared.longest();
        self.age = self.age.saturating_add(seconds).min(longest);
    }

    /// A copy, which shares the records. Takes no memory.
    pub fn clone(&self) -> Result<Glue, NetError>
        ensures ok { IfOk result (λ glue. glue ≡ self.now) }
        ensures err { IsOkUnless result NetError.OutOfMemory }
    {
        Ok(Clone::clone(self)?)
    }

    // These records and one more.
    pub(crate) fn with(self, added: Record) -> Result<Glue, NetError>
        ensures ok { IfOk result (λ glue. glue ≡ self ++ added ∷ []) }
        ensures err { IsOkUnless result NetError.OutOfMemory }
    {
        let mut records = self.into_records()?;
        records.push(added)?;
        Glue::share(records)
    }

    fn share(records: SharedRecords) -> Result<Glue, NetError>
        ensures ok { IfOk result (λ glue. glue ≡ records) }
        ensures err { IsOkUnless result NetError.OutOfMemory }
    {
        let shared = Arc::new(records.allocator(), records)?;
        Ok(Glue { shared, age: 0 })
    }

    fn into_records(self) -> Result<SharedRecords, NetError>
        ensures ok { IfOk result (λ records. records ≡ self) }
        ensures err { IsOkUnless result NetError.OutOfMemory }
    {
        let Glue { shared, age } = self;
        let mut records = match Arc::try_unwrap(shared) {
            Ok(records) => records,
            Err(shared) => shared.copy()?,
        };
        records.lower(age);
        Ok(records)
    }
}

impl SharedRecords {
    fn new(records: Vec<Record>) -> SharedRecords
        ensures { result ≡ records.items }
    {
        let longest = longest_ttl(&records);
        SharedRecords { records, longest }
    }

    fn allocator(&self) -> Global {
        *self.records.allocator()
    }

    fn len(&self) -> usize
        ensures { result ≡ length self.now }
    {
        self.records.len()
    }

    fn longest(&self) -> u32
        ensures { All (λ r. r.ttl ≤ result) self.now }
    {
        self.longest
    }

    fn into_vec(self) -> Vec<Record>
        ensures { result.items ≡ self }
    {
        self.records
    }

    fn copy(&self) -> Result<SharedRecords, NetError>
        ensures ok { IfOk result (λ copy. copy ≡ self.now) }
        ensures err { IsOkUnless result NetError.OutOfMemory }
    {
        Ok(SharedRecords::new(self.records.clone()?))
    }

    fn push(&mut self, added: Record) -> Result<(), NetError>
        ensures ok { OnOk result (self.new ≡ self.old ++ added ∷ []) }
        ensures err { IsOkUnless result NetError.OutOfMemory }
    {
        let longest = self.longest.max(added.ttl);
        self.records.push(added)?;
        self.longest = longest;
        Ok(())
    }

    fn lower(&mut self, seconds: u32)
        ensures { self.new ≡ map (lower_ttl seconds) self.old }
    {
        if seconds > 0 {
            lower_ttls(&mut self.records, seconds);
        }
    }
}

/// A copy equals its source, and shares its records. It takes no memory.
impl Clone for Glue {
    ghost use Rattle.std.specs.Prelude.{◌≡◌};

    ghost is_clone = { λ glue copy. copy ≡ glue };

    fn clone(&self) -> Result<Glue, AllocError> {
        Ok(Glue {
            shared: Arc::try_clone(&self.shared)?,
            age: self.age,
        })
    }
}

/// As a list of the records as they are now.
impl fmt::Debug for Glue {
    fn fmt<W: fmt::Write>(&self, f: &mut fmt::Formatter<W>) -> fmt::Result {
        let seconds = self.age;
        let mut list = f.debug_list();
        for record in self.shared.records.iter() {
            list.entry(&Lowered { record, seconds });
        }
        list.finish()
    }
}

// A record whose time to live is so many seconds lower.
#[derive(Drop)]
struct Lowered<'a> {
    record: &'a Record,
    seconds: u32,
}

impl fmt::Debug for Lowered<'_> {
    fn fmt<W: fmt::Write>(&self, f: &mut fmt::Formatter<W>) -> fmt::Result {
        let record = self.record;
        f.debug_struct("Record")
            .field("name", &record.name)
            .field("dns_class", &record.dns_class)
            .field("ttl", &record.ttl.saturating_sub(self.seconds))
            .field("rdata", &record.rdata)
            .finish()
    }
}

fn longest_ttl(records: &[Record]) -> u32
    ensures { All (λ r. r.ttl ≤ result) records.now }
{
    let mut longest = 0;
    for record in records {
        longest = longest.max(record.ttl);
    }
    longest
}

fn lower_ttls(records: &mut Vec<Record>, seconds: u32)
    ensures { records.new.items ≡ map (lower_ttl seconds) records.old.items }
{
    for record in records.iter_mut() {
        record.decrement_ttl(seconds);
    }
}
