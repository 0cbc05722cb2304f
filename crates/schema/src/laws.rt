// The laws of reading types, declarations and operations.
ghost use Rattle.schema.specs.ReadingLaws.{OneOutcome, AsWritten, Shapes, Uses};

// Reading has one outcome; it is got exactly where the grammar has it within the limits; a type's marks say what its type says; and
// the tables of an operation hold each use with its own arguments.
pub fn one_outcome()
    ensures once { OneOutcome }
    ensures written { AsWritten }
    ensures shapes { Shapes }
    ensures uses { Uses }
{}
