//! The server lists of groups.
ghost use Rattle.std.specs.Prelude.{◌≡◌, ◌+◌, not, false, IfOk, OnOk, OnErr, option_copied};
ghost use Rattle.std.specs.Ordering.{nat_cmp};
ghost use Rattle.std.specs.BTreeMap.{insert_entry};
ghost use Rattle.std.specs.Option.{is_some, option_map_or};
ghost use Rattle.hickory_resolver_traffic.specs.Groups.{no_groups, current_of, list_in, list_at, put_list, drop_list, is_needed, kept_if_needed, swept, changed_list, one_more, begun, one_less, ended, new_list, retired, without_current, numbers_of, with_servers};

use hickory_resolver_servers::{Server, Servers};
use hickory_resolver_steps::ServerList;
use std::alloc::{AllocError, Global};
use std::collections::BTreeMap;
use std::marker::Model;
use std::net::SocketAddr;

/// The local addresses from which channels to a server are opened, where they are given.
#[derive(Clone, Copy, Debug, PartialEq, Eq)]
pub struct Sources {
    /// For datagrams.
    pub udp: Option<SocketAddr>,
    /// For streams.
    pub tcp: Option<SocketAddr>,
}

/// The servers of a group.
#[derive(Drop)]
pub struct GroupList {
    /// The servers.
    pub servers: ServerList,
    /// From where channels to each are opened.
    pub sources: Vec<Sources>,
    /// How many transactions ask them.
    pub transactions: u64,
    /// Whether new ones do.
    pub is_current: bool,
}

impl Model for GroupList {
    ghost use Rattle.hickory_resolver_traffic.specs.Groups.{GroupListState};

    ghost Value = { GroupListState };

    ghost view = { λ l. record {
      servers = l.servers;
      sources = l.sources.items;
      transactions = l.transactions;
      is_current = l.is_current;
    } };
}

/// Lists by number.
pub type Lists = BTreeMap<u64, GroupList>;

/// The server lists of groups.
#[derive(Drop)]
pub struct Groups {
    next: u64,
    current: BTreeMap<u64, u64>,
    pub(crate) lists: Lists,
}

impl Model for Groups {
    ghost use Rattle.hickory_resolver_traffic.specs.Groups.{GroupsState};

    ghost Value = { GroupsState };

    ghost view = { λ g. record {
      next = g.next;
      current = g.current.entries;
      lists = g.lists.entries;
    } };
}

impl Groups {
    /// No groups.
    pub fn new(alloc: Global) -> Groups
        ensures { result ≡ no_groups }
    {
        Groups {
            next: 0,
            current: BTreeMap::new(alloc),
            lists: BTreeMap::new(alloc),
        }
    }

    /// The number of the list of a group.
    pub fn current(&self, group: u64) -> Option<u64>
        ensures { result ≡ current_of group self.now }
    {
        self.current.get(&group).copied()
    }

    /// The list of a number.
    pub fn list(&self, number: u64) -> Option<&GroupList>
        ensures { option_copied result ≡ list_at number self.now }
    {
        self.lists.get(&number)
    }

    /// A transaction begins that asks these servers.
    pub fn begin(&mut self, number: u64)
        ensures { self.new ≡ begun number self.old }
    {
        count_one_more(&mut self.lists, number);
    }

    /// A transaction that asked these servers is over. A list that nobody needs any more is dropped.
    pub fn end(&mut self, number: u64, transaction: u64)
        ensures { self.new ≡ ended number transaction self.old }
    {
        count_one_less(&mut self.lists, number, transaction);
        sweep(&mut self.lists, number);
    }

    /// A group has these servers from now on. Once numbers have run out, after 2^64 - 1 of them, memory is refused. A
    /// refused call changes nothing.
    pub fn set(
        &mut self,
        alloc: Global,
        group: u64,
        servers: Servers,
        sources: Vec<Sources>,
    ) -> Result<(), AllocError>
        ensures ok { OnOk result (self.new ≡ with_servers group servers sources.items self.old) }
        ensures err { OnErr result (self.new ≡ self.old) }
    {
        let first = self.next;
        let next = next_after(first, servers.as_slice())?;
        let list = GroupList::new(alloc, first, servers, sources)?;
        let old = self.current(group);
        insert_both(&mut self.current, &mut self.lists, group, first, list)?;
        self.next = next;
        retire(&mut self.lists, old);
        Ok(())
    }
}

impl GroupList {
    fn new(
        alloc: Global,
        first: u64,
        servers: Servers,
        sources: Vec<Sources>,
    ) -> Result<GroupList, AllocError>
        ensures { IfOk result (λ l. l ≡ new_list first servers sources.items) }
    {
        Ok(GroupList {
            servers: ServerList::new(alloc, first, servers)?,
            sources,
            transactions: 0,
            is_current: true,
        })
    }

    fn is_needed(&self) -> bool
        ensures { result ≡ is_needed self.now }
    {
        if self.is_current {
            true
        } else {
            self.transactions != 0
        }
    }

    fn count_one_more(&mut self)
        ensures { self.new ≡ one_more self.old }
    {
        self.transactions = self.transactions.saturating_add(1);
    }

    fn count_one_less(&mut self, transaction: u64)
        ensures { self.new ≡ one_less transaction self.old }
    {
        self.servers.release(transaction);
        self.transactions = self.transactions.saturating_sub(1);
    }

    fn retire(&mut self)
        ensures { self.new ≡ retired self.old }
    {
        self.is_current = false;
    }
}

// The number behind those of these servers.
fn next_after(first: u64, servers: &[Server]) -> Result<u64, AllocError>
    ensures { IfOk result (λ next. next ≡ first + numbers_of servers.now) }
{
    let count = servers.len().max(1) as u64;
    match first.checked_add(count) {
        Some(next) => Ok(next),
        None => Err(AllocError),
    }
}

// Adds a list, as that of a group. Where there is one of this number already, memory is refused: a new one has none.
fn insert_both(
    current: &mut BTreeMap<u64, u64>,
    lists: &mut Lists,
    group: u64,
    number: u64,
    list: GroupList,
) -> Result<(), AllocError>
    ensures current { OnOk result (current.new.entries ≡ insert_entry nat_cmp current.old.entries group number) }
    ensures list { OnOk result (lists.new.entries ≡ insert_entry nat_cmp lists.old.entries number list) }
    ensures err { OnErr result (current.new.entries ≡ current.old.entries) }
    ensures unlisted { OnErr result (lists.new.entries ≡ lists.old.entries) }
{
    if has_list(lists, number) {
        return Err(AllocError);
    }
    insert_list(lists, number, list)?;
    match insert_current(current, group, number) {
        Ok(()) => Ok(()),
        Err(AllocError) => {
            drop_list(lists, number);
            Err(AllocError)
        }
    }
}

fn has_list(lists: &Lists, number: u64) -> bool
    ensures { result ≡ is_some (list_in number lists.now.entries) }
{
    lists.contains_key(&number)
}

fn insert_list(lists: &mut Lists, number: u64, list: GroupList) -> Result<(), AllocError>
    ensures ok { OnOk result (lists.new.entries ≡ insert_entry nat_cmp lists.old.entries number list) }
    ensures err { OnErr result (lists.new.entries ≡ lists.old.entries) }
{
    lists.insert(number, list)?;
    Ok(())
}

fn insert_current(
    current: &mut BTreeMap<u64, u64>,
    group: u64,
    number: u64,
) -> Result<(), AllocError>
    ensures ok { OnOk result (current.new.entries ≡ insert_entry nat_cmp current.old.entries group number) }
    ensures err { OnErr result (current.new.entries ≡ current.old.entries) }
{
    current.insert(group, number)?;
    Ok(())
}

fn drop_list(lists: &mut Lists, number: u64)
    ensures { lists.new.entries ≡ drop_list number lists.old.entries }
{
    drop(lists.remove(&number));
}

fn count_one_more(lists: &mut Lists, number: u64)
    ensures { lists.new.entries ≡ changed_list one_more number lists.old.entries }
{
    if let Some(list) = lists.get_mut(&number) {
        list.count_one_more();
    }
}

fn count_one_less(lists: &mut Lists, number: u64, transaction: u64)
    ensures { lists.new.entries ≡ changed_list (one_less transaction) number lists.old.entries }
{
    if let Some(list) = lists.get_mut(&number) {
        list.count_one_less(transaction);
    }
}

fn retire_one(lists: &mut Lists, number: u64)
    ensures { lists.new.entries ≡ changed_list retired number lists.old.entries }
{
    if let Some(list) = lists.get_mut(&number) {
        list.retire();
    }
}

// Nobody asks these servers anew. A list that nobody needs any more is dropped.
fn retire(lists: &mut Lists, old: Option<u64>)
    ensures { lists.new.entries ≡ option_map_or (without_current lists.old.entries) old lists.old.entries }
{
    if let Some(number) = old {
        retire_one(lists, number);
        sweep(lists, number);
    }
}

fn is_unneeded(lists: &Lists, number: u64) -> bool
    ensures { result ≡ option_map_or (λ l. not (is_needed l)) (list_in number lists.now.entries) false }
{
    match lists.get(&number) {
        Some(list) => !list.is_needed(),
        None => false,
    }
}

fn sweep(lists: &mut Lists, number: u64)
    ensures { lists.new.entries ≡ swept number lists.old.entries }
{
    if is_unneeded(lists, number) {
        drop_list(lists, number);
    }
}
