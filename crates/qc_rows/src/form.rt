// The members of an object, each of which is to be taken.
use crate::odd::Odd;
use qc_containers::Chars;
use qc_data::{Json, Members};

/// An object's members, and how many of them were taken.
#[derive(Drop)]
pub struct Form<'a> {
    members: &'a Members,
    taken: usize,
}

impl<'a> Form<'a> {
    /// The members of the object, none of which is taken.
    pub fn of(json: &'a Json) -> Result<Form<'a>, Odd> {
        match json {
            Json::Object(members) => Ok(Form { members, taken: 0 }),
            _ => Err(Odd::Form),
        }
    }

    /// Takes a member that may be left out. Each is to be asked for once.
    pub fn maybe(&mut self, name: &str) -> Option<&'a Json> {
        let found = self.members.get(name)?;
        self.taken = self.taken.saturating_add(1);
        Some(found)
    }

    /// Takes a member.
    pub fn member(&mut self, name: &str) -> Result<&'a Json, Odd> {
        match self.maybe(name) {
            Some(found) => Ok(found),
            None => Err(Odd::Form),
        }
    }

    /// Takes a member that is a text.
    pub fn word(&mut self, name: &str) -> Result<&'a str, Odd> {
        word(self.member(name)?)
    }

    /// Sees that each member was taken.
    pub fn end(&self) -> Result<(), Odd> {
        if self.taken == self.members.len() {
            Ok(())
        } else {
            Err(Odd::Form)
        }
    }
}

/// The text that the tree is.
pub fn word(json: &Json) -> Result<&str, Odd> {
    match json {
        Json::Text(text) => Ok(text.as_str()),
        _ => Err(Odd::Form),
    }
}

/// The truth value that the tree is.
pub fn truth(json: &Json) -> Result<bool, Odd> {
    match json {
        Json::Bool(truth) => Ok(*truth),
        _ => Err(Odd::Form),
    }
}

/// The integer that the tree is.
pub fn integer(json: &Json) -> Result<i64, Odd> {
    match json {
        Json::Int(n) => Ok(*n),
        _ => Err(Odd::Form),
    }
}

/// The integer that the tree is, where it isn't negative.
pub fn count(json: &Json) -> Result<u64, Odd> {
    match u64::try_from(integer(json)?) {
        Ok(n) => Ok(n),
        Err(_) => Err(Odd::Form),
    }
}

/// The items of the array that the tree is.
pub fn items(json: &Json) -> Result<&[Json], Odd> {
    match json {
        Json::Array(items) => Ok(items.as_slice()),
        _ => Err(Odd::Form),
    }
}

/// The two items of the array that the tree is.
pub fn pair(json: &Json) -> Result<(&Json, &Json), Odd> {
    match items(json)? {
        [first, second] => Ok((first, second)),
        _ => Err(Odd::Form),
    }
}

/// The members of the object that the tree is.
pub fn members(json: &Json) -> Result<&[(Chars, Json)], Odd> {
    match json {
        Json::Object(members) => Ok(members.as_slice()),
        _ => Err(Odd::Form),
    }
}
