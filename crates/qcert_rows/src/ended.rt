// What a call of the compiler leaves behind.
use qc_data::Json;
use qc_rows::{Form, Odd, Texts, integer, tree_text};
use std::alloc::Global;

/// The status, what was written, and maybe the compact text of the names that were asked for.
#[derive(Drop)]
pub struct Ended {
    pub status: u8,
    pub out: Vec<u8>,
    pub err: Vec<u8>,
    pub asked: Option<String>,
}

impl Ended {
    /// Takes what the row wants: an answer, a fault, or all that is written.
    pub fn wanted(alloc: Global, texts: &Texts, row: &mut Form) -> Result<Ended, Odd> {
        let asked = match row.maybe("asked") {
            Some(names) => Some(tree_text(alloc, names)?),
            None => None,
        };
        let (status, out, err) = if let Some(answer) = row.maybe("answer") {
            (0, line(alloc, b"", texts, answer)?, Vec::new(alloc))
        } else if let Some(fault) = row.maybe("fault") {
            (
                status(row)?,
                Vec::new(alloc),
                line(alloc, b"qcert: ", texts, fault)?,
            )
        } else {
            let out = texts.bytes(alloc, row.member("out")?)?;
            (status(row)?, out, texts.bytes(alloc, row.member("err")?)?)
        };
        Ok(Ended {
            status,
            out,
            err,
            asked,
        })
    }

    /// Whether it is a query's answer, or the whole line that says that the query leaves 64 bits, and nothing more.
    pub fn is_outcome(&self) -> bool {
        let is_range = self.status == 6 && self.err.as_slice() == b"qcert: Range\n".as_slice();
        (self.status == 0 || is_range) && self.asked.is_none()
    }

    /// All of it as bytes, which are the same exactly where all of it is.
    pub fn bytes(&self, alloc: Global) -> Result<Vec<u8>, Odd> {
        let (status, out, err) = (self.status, self.out.len(), self.err.len());
        let front = format!(in alloc;
            "status {status}, {out} bytes of output and {err} of faults: "
        )?;
        let mut bytes = Vec::from_slice(alloc, front.as_bytes())?;
        bytes.extend_from_slice(&self.out)?;
        bytes.extend_from_slice(&self.err)?;
        if let Some(asked) = &self.asked {
            bytes.extend_from_slice(asked.as_bytes())?;
        }
        Ok(bytes)
    }
}

fn status(row: &mut Form) -> Result<u8, Odd> {
    match u8::try_from(integer(row.member("status")?)?) {
        Ok(status) => Ok(status),
        Err(_) => Err(Odd::Form),
    }
}

// The front, the text and a line feed.
fn line(alloc: Global, front: &[u8], texts: &Texts, text: &Json) -> Result<Vec<u8>, Odd> {
    let mut line = Vec::from_slice(alloc, front)?;
    line.extend_from_slice(&texts.bytes(alloc, text)?)?;
    line.push(b'\n')?;
    Ok(line)
}
