//! The consequences of a live run of events. Each law is a theorem: its contract is what is proved, and its body is
//! empty.

ghost use Rattle.p25_filter.specs.Orders.{
  AllIsWrittenFirst,
  NoEmptyWrite,
  NoReadAfterEnd,
  NoReadAfterRefusal,
  NoReadAhead,
  NothingAfterReadFault,
  NothingAfterWriteFault,
  ReadFaultIsTold,
  WriteFaultIsTold,
};

/// **Theorem.** The laws of a live run of events. At each read all output that the octets read before determine was
/// written, and they cause no refusal. Of two reads with no write between them the first determined nothing. No read
/// comes after the end of the input, and no write is empty. A fault is the last event, and the end states it.
pub fn order_laws()
    ensures all_is_written_first { AllIsWrittenFirst }
    ensures no_read_after_refusal { NoReadAfterRefusal }
    ensures no_read_ahead { NoReadAhead }
    ensures no_read_after_end { NoReadAfterEnd }
    ensures no_empty_write { NoEmptyWrite }
    ensures nothing_after_read_fault { NothingAfterReadFault }
    ensures nothing_after_write_fault { NothingAfterWriteFault }
    ensures read_fault_is_told { ReadFaultIsTold }
    ensures write_fault_is_told { WriteFaultIsTold }
{}
