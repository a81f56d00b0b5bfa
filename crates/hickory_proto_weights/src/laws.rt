//! That the addresses of a name server, which are weighed by their number, weigh what their records do.
ghost use Rattle.hickory_proto_weights.specs.Laws.{EqualNamesWeighTheSame, AddressesWeighAsRecords};

/// Names that are equal weigh the same. A server's addresses weigh as much as their records, where they are those of the
/// server that the NS record names.
pub fn addresses_weigh_as_records()
    ensures names { EqualNamesWeighTheSame }
    ensures addresses { AddressesWeighAsRecords }
{}
