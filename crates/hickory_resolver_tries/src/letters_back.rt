//! Letters given back: a reply as if the name had been asked as it is spelled.
ghost use Rattle.std.specs.Prelude.{◌≡◌, OnOk, map};
ghost use Rattle.hickory_proto_core.specs.Messages.{MessageValue};
ghost use Rattle.hickory_resolver_tries.specs.GivenBack.{respelled, respelled_query, respelled_record, given_back};

use hickory_proto_core::{Message, Name, Query, Record};
use std::alloc::AllocError;

/// Gives a reply the letters that were asked, in its question and in each owner that is the asked name without case.
/// After a refusal for memory some may have them and some not.
pub fn give_back(asked: &Name, reply: &mut Message) -> Result<(), AllocError>
    ensures { OnOk result (reply.new ≡ given_back asked.now reply.old) }
{
    respell_queries(asked, &mut reply.queries)?;
    respell_records(asked, &mut reply.answers)?;
    respell_records(asked, &mut reply.authorities)?;
    respell_records(asked, &mut reply.additionals)?;
    Ok(())
}

// The asked name in the place of the same without case.
fn respell(asked: &Name, name: &mut Name) -> Result<(), AllocError>
    ensures { OnOk result (name.new ≡ respelled asked.now name.old) }
{
    if *asked == *name {
        *name = Clone::clone(asked)?;
    }
    Ok(())
}

fn respell_query(asked: &Name, query: &mut Query) -> Result<(), AllocError>
    ensures { OnOk result (query.new ≡ respelled_query asked.now query.old) }
{
    respell(asked, &mut query.name)?;
    Ok(())
}

fn respell_record(asked: &Name, found: &mut Record) -> Result<(), AllocError>
    ensures { OnOk result (found.new ≡ respelled_record asked.now found.old) }
{
    respell(asked, &mut found.name)?;
    Ok(())
}

fn respell_queries(asked: &Name, queries: &mut [Query]) -> Result<(), AllocError>
    ensures { OnOk result (queries.new ≡ map (respelled_query asked.now) queries.old) }
{
    for query in queries.iter_mut() {
        respell_query(asked, query)?;
    }
    Ok(())
}

fn respell_records(asked: &Name, records: &mut [Record]) -> Result<(), AllocError>
    ensures { OnOk result (records.new ≡ map (respelled_record asked.now) records.old) }
{
    for found in records.iter_mut() {
        respell_record(asked, found)?;
    }
    Ok(())
}
