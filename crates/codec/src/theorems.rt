// The theorems on bytes, each named by the contract of a function that has nothing to do: it is proved only if the theorem is.
ghost use Rattle.codec.specs.Codec.{ReadBack, OneSpelling, GarbledWhere, OneReading};

pub fn read_back()
    ensures { ReadBack }
{}

pub fn one_spelling()
    ensures { OneSpelling }
{}

pub fn garbled_where()
    ensures { GarbledWhere }
{}

pub fn one_reading()
    ensures { OneReading }
{}
