// A record of the table whose layout was checked before, read by its map and its lengths alone.
pub mod walk; // walk.rt: the offset behind a record
pub mod known; // known.rt: a record that is known to stand at an offset
