// The texts of a file, which are laid together of pieces.
use crate::form;
use crate::odd::Odd;
use qc_data::{Json, Members};
use std::alloc::Global;

/// A text with its name.
#[derive(Drop)]
struct Named<'a> {
    name: &'a str,
    text: Vec<u8>,
}

/// The texts of a file, by their names.
#[derive(Drop)]
pub struct Texts<'a> {
    named: Vec<Named<'a>>,
}

impl<'a> Texts<'a> {
    /// The texts that the members are, each of which may name those before it.
    pub fn of(alloc: Global, json: Option<&'a Json>) -> Result<Texts<'a>, Odd> {
        let mut texts = Texts {
            named: Vec::new(alloc),
        };
        let Some(json) = json else {
            return Ok(texts);
        };
        for member in form::members(json)? {
            let text = texts.bytes(alloc, &member.1)?;
            let name = member.0.as_str();
            texts.named.push(Named { name, text })?;
        }
        Ok(texts)
    }

    /// The bytes of the text that the tree describes.
    pub fn bytes(&self, alloc: Global, json: &Json) -> Result<Vec<u8>, Odd> {
        let mut bytes = Vec::new(alloc);
        self.lay(alloc, json, &mut bytes)?;
        Ok(bytes)
    }

    /// The text that the tree describes, where it is UTF-8.
    pub fn text(&self, alloc: Global, json: &Json) -> Result<String, Odd> {
        let bytes = self.bytes(alloc, json)?;
        match str::from_utf8(&bytes) {
            Ok(text) => Ok(String::from_str(alloc, text)?),
            Err(_) => Err(Odd::Form),
        }
    }

    // Lays the text behind what is there.
    #[cycle(lay)]
    fn lay(&self, alloc: Global, json: &Json, into: &mut Vec<u8>) -> Result<(), Odd> {
        match json {
            Json::Text(text) => Ok(into.extend_from_slice(text.as_str().as_bytes())?),
            Json::Array(pieces) => {
                for piece in pieces.as_slice() {
                    self.lay(alloc, piece, into)?;
                }
                Ok(())
            }
            Json::Object(members) => self.lay_object(alloc, members, into),
            _ => Err(Odd::Form),
        }
    }

    #[cycle(lay)]
    fn lay_object(&self, alloc: Global, members: &Members, into: &mut Vec<u8>) -> Result<(), Odd> {
        let pairs = members.as_slice();
        if pairs.len() == 1 {
            return self.lay_one(pairs[0].0.as_str(), &pairs[0].1, into);
        }
        if pairs.len() != 2 || pairs[0].0.as_str() != "repeat" || pairs[1].0.as_str() != "times" {
            return Err(Odd::Form);
        }
        let mut once = Vec::new(alloc);
        self.lay(alloc, &pairs[0].1, &mut once)?;
        for _ in 0..form::count(&pairs[1].1)? {
            into.extend_from_slice(&once)?;
        }
        Ok(())
    }

    fn lay_one(&self, name: &str, json: &Json, into: &mut Vec<u8>) -> Result<(), Odd> {
        match name {
            "named" => Ok(into.extend_from_slice(self.find(form::word(json)?)?)?),
            "bytes" => lay_numbers(form::items(json)?, into),
            _ => Err(Odd::Form),
        }
    }

    fn find(&self, name: &str) -> Result<&[u8], Odd> {
        for named in &self.named {
            if named.name == name {
                return Ok(&named.text);
            }
        }
        Err(Odd::Form)
    }
}

fn lay_numbers(bytes: &[Json], into: &mut Vec<u8>) -> Result<(), Odd> {
    for byte in bytes {
        match u8::try_from(form::integer(byte)?) {
            Ok(byte) => into.push(byte)?,
            Err(_) => return Err(Odd::Form),
        }
    }
    Ok(())
}
