//! The Project 25 Common Air Interface (Phase 1, TIA-102.BAAA) for C and C++: recordings of bits, read item by item, data units
//! built, repaired and bridged, and the codewords, blocks and CRCs of the air interface.
//!
//! The library is written in Rattle, and each call below is proved to meet its contract, in the crate `p25_c`: the contract states
//! what it returns, and what it writes, in every case. This header is made of that crate and is not proved. Neither is the compiler, the
//! linker, nor the program that calls. docs/LIBRARY.md has two short programs, docs/PROVED.md what is proved.
//!
//! A program must ensure the following, which nothing checks:
//!
//! - Each pointer is aligned and leads to as many objects as is said beside it, at most PTRDIFF_MAX octets. All of them contain values,
//!   also those that a call only writes: set a buffer before you give it, as by = {0}. They may be read, and written if the pointer is no
//!   pointer to const.
//! - No pointer is NULL, but one whose length, `n` or `room`, is 0. A test looks at it that such a pointer is not followed; it is not proved.
//! - What a call writes overlaps nothing else that the same call is given.
//! - A bool is true or false: as an octet, 1 or 0.
//! - While a call runs no thread writes what it reads, and none reads or writes what it writes.
//!
//! A call checks all else itself, and returns one of the numbers named below. It allocates nothing, keeps nothing, and calls nothing but
//! memcpy, memmove, memset and memcmp, so calls of several threads on different octets do not meet. A test looks at this; it is not
//! proved.
//!
//! Stack, as stack.c measured it on x86-64 over recordings of all types of data units: `p25_follower_take` takes up to 54,000 octets; the
//! calls that build, repair, bridge or relay a data unit, and `p25_soften`, 47,000; those that return items, and `p25_unit_fields`, 38,000;
//! `p25_packet_read`, `p25_build_packet` and `p25_build_fields` 30,000; and the other calls 13,000. It is measured, and not proved: give a
//! thread 160 KiB or more.
#![tactic(auto)]

mod answers;
mod blocks;
mod building;
mod calls;
mod checks;
mod dibits;
mod fields;
mod followers;
mod items;
mod laws;
mod levels;
mod links;
mod many;
mod marks;
mod packet_building;
mod packets;
mod relays;
mod repeats;
mod room;
mod solomon;
mod stream;
mod version;
mod views;
mod word_calls;
mod words;
