use record::value::Value;

// A version of the library: its number, counted from 1, and its value. Number 0 stands for none, as it is answered.
#[derive(Clone, Copy, Debug, PartialEq, Eq)]
pub struct Version {
    pub number: u16,
    pub value: Value,
}
