//! Questions.
ghost use Rattle.std.specs.Prelude.{◌≡◌, IfOk, IsOkUnless};

use crate::net_error::NetError;
use hickory_proto_codes::{DNSClass, RecordType};
use hickory_proto_names::Name;
use std::alloc::{AllocError, Global};
use std::hash::{Hash, Hasher};

/// What is asked: a name, a type and a class (RFC 1035, section 4.1.2).
#[derive(Debug, Drop)]
pub struct Query {
    pub name: Name,
    pub query_type: RecordType,
    pub query_class: DNSClass,
}

impl Query {
    ghost use Rattle.hickory_proto_core.specs.Query.{root_query};

    /// The question for the addresses of the root: A, in the class of the Internet.
    pub fn new(alloc: Global) -> Query
        ensures { result ≡ root_query }
    {
        Query {
            name: Name::root(alloc),
            query_type: RecordType::A,
            query_class: DNSClass::IN,
        }
    }

    /// The question for a name and a type in the class of the Internet.
    pub fn query(name: Name, query_type: RecordType) -> Query
        ensures name { result.name ≡ name }
        ensures query_type { result.query_type ≡ query_type }
        ensures query_class { result.query_class ≡ DNSClass.IN }
    {
        Query {
            name,
            query_type,
            query_class: DNSClass::IN,
        }
    }

    /// The name that is asked about.
    pub fn name(&self) -> &Name
        ensures { result.now ≡ self.now.name }
    {
        &self.name
    }

    /// The type of the records that are asked for.
    pub fn query_type(&self) -> RecordType
        ensures { result ≡ self.now.query_type }
    {
        self.query_type
    }

    /// The class of the records that are asked for.
    pub fn query_class(&self) -> DNSClass
        ensures { result ≡ self.now.query_class }
    {
        self.query_class
    }

    /// A copy of every field.
    pub fn clone(&self) -> Result<Query, NetError>
        ensures ok { IfOk result (λ q. q ≡ self.now) }
        ensures err { IsOkUnless result NetError.OutOfMemory }
    {
        Ok(Clone::clone(self)?)
    }
}

/// A copy equals its source.
impl Clone for Query {
    ghost use Rattle.std.specs.Prelude.{◌≡◌};

    ghost is_clone = { λ query copy. copy ≡ query };

    fn clone(&self) -> Result<Query, AllocError> {
        Ok(Query {
            name: Clone::clone(&self.name)?,
            query_type: self.query_type,
            query_class: self.query_class,
        })
    }
}

// By hand, so that the clauses of a map from questions speak of `query_eq` itself.
impl PartialEq for Query {
    ghost use Rattle.std.specs.Cmp.{partial_equiv_from_equiv};
    ghost use Rattle.hickory_proto_core.specs.Query.{query_eq, query_equiv};

    ghost eq = { query_eq };

    ghost laws = { partial_equiv_from_equiv query_equiv };

    fn eq(&self, other: &Query) -> bool {
        self.name == other.name
            && self.query_type == other.query_type
            && self.query_class == other.query_class
    }
}

impl Eq for Query {
    ghost use Rattle.hickory_proto_core.specs.Query.{query_equiv};

    ghost laws = { query_equiv };
}

impl Hash for Query {
    ghost use Rattle.hickory_proto_core.specs.Query.{query_hash_input, query_respects_eq};

    ghost hash_input = { query_hash_input };

    ghost respects_eq = { query_respects_eq };

    fn hash<H: Hasher>(&self, state: &mut H) {
        self.name.hash(state);
        self.query_type.hash(state);
        self.query_class.hash(state);
    }
}
