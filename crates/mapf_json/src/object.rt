//! An object of JSON before it is written. `objects.rt` makes one for each answer and each error, and `members.rt`
//! writes it.
ghost use Rattle.std.specs.Prelude.{◌≡◌, Some, None};

/// A member whose value is a word.
#[derive(Clone, Copy, Debug, PartialEq, Eq)]
pub struct Word {
    pub name: &'static str,
    pub value: &'static str,
}

/// A member whose value is a number.
#[derive(Clone, Copy, Debug, PartialEq, Eq)]
pub struct Number {
    pub name: &'static str,
    pub value: u64,
}

/// An object: its verdict; the fault, the refusal or the cause; the error inside a file; the file; and numbers.
#[derive(Clone, Copy, Debug, PartialEq, Eq)]
pub struct Object {
    pub verdict: &'static str,
    pub code: Option<Word>,
    pub error: Option<&'static str>,
    pub file: Option<&'static str>,
    pub numbers: (Option<Number>, Option<Number>, Option<Number>),
}

impl Object {
    /// Returns the object with this verdict only.
    pub fn of(verdict: &'static str) -> Object
        ensures { result ≡ record {
          verdict = verdict.entry;
          code = None;
          error = None;
          file = None;
          numbers = (None, None, None);
        } }
    {
        Object {
            verdict,
            code: None,
            error: None,
            file: None,
            numbers: (None, None, None),
        }
    }

    /// Returns the object with this fault, refusal or cause.
    pub fn coded(self, name: &'static str, value: &'static str) -> Object
        ensures { result ≡ record self { code = Some (record { name = name.entry; value = value.entry }) } }
    {
        Object {
            code: Some(Word { name, value }),
            ..self
        }
    }

    /// Returns the object with this error.
    pub fn naming(self, error: &'static str) -> Object
        ensures { result ≡ record self { error = Some error.entry } }
    {
        Object {
            error: Some(error),
            ..self
        }
    }

    /// Returns the object with this file.
    pub fn about(self, file: &'static str) -> Object
        ensures { result ≡ record self { file = Some file.entry } }
    {
        Object {
            file: Some(file),
            ..self
        }
    }

    /// Returns the object with this number.
    pub fn with(self, name: &'static str, value: u64) -> Object
        ensures { result ≡ record self { numbers = (Some (record { name = name.entry; value = value }), None, None) } }
    {
        Object {
            numbers: (Some(Number { name, value }), None, None),
            ..self
        }
    }

    /// Returns the object with a number after its first one.
    pub fn and(self, name: &'static str, value: u64) -> Object
        ensures { result ≡ record self {
          numbers = (self.numbers.0, Some (record { name = name.entry; value = value }), None);
        } }
    {
        Object {
            numbers: (self.numbers.0, Some(Number { name, value }), None),
            ..self
        }
    }

    /// Returns the object with a number after its first two.
    pub fn and_last(self, name: &'static str, value: u64) -> Object
        ensures { result ≡ record self {
          numbers = (self.numbers.0, self.numbers.1, Some (record { name = name.entry; value = value }));
        } }
    {
        let (first, second, _) = self.numbers;
        Object {
            numbers: (first, second, Some(Number { name, value })),
            ..self
        }
    }
}
