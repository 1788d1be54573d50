//! A table as source text.
ghost use Rattle.std.specs.Prelude.{◌<◌};

use std::alloc::{AllocError, Global};
use std::io;

/// How a number is written: in decimal, or with so many hexadecimal digits.
#[derive(Clone, Copy)]
pub enum Digits {
    Decimal,
    Two,
    Eight,
    Sixteen,
}

/// A static array as its source file has it.
#[derive(Clone, Copy)]
pub struct Layout<'a> {
    pub name: &'a str,
    /// The type of an element.
    pub element: &'a str,
    pub digits: Digits,
    /// How many elements stand in a line.
    pub in_line: usize,
}

fn element_of(alloc: Global, element: u64, digits: Digits) -> Result<String, AllocError> {
    match digits {
        Digits::Decimal => format!(in alloc; " {element},"),
        Digits::Two => format!(in alloc; " 0x{element:02X},"),
        Digits::Eight => format!(in alloc; " 0x{element:08X},"),
        Digits::Sixteen => format!(in alloc; " 0x{element:016X},"),
    }
}

fn line_of(alloc: Global, elements: &[u64], digits: Digits) -> Result<String, AllocError> {
    let mut line = String::new(alloc);
    line.push_str("   ")?;
    for element in elements {
        line.push_str(element_of(alloc, *element, digits)?.as_str())?;
    }
    Ok(line)
}

/// Prints the array after an empty line. The formatter leaves it as it is.
pub fn print_array(
    rt: &impl Print,
    alloc: Global,
    layout: Layout<'_>,
    elements: &[u64],
) -> io::Result<()>
    requires { 0 < layout.in_line }
{
    let Layout { name, element, .. } = layout;
    let len = elements.len();
    println!(rt; "\n#[rattlefmt::skip]\npub(crate) static {name}: [{element}; {len}] = [")?;
    for part in elements.chunks(layout.in_line) {
        let line = line_of(alloc, part, layout.digits)?;
        println!(rt; "{line}")?;
    }
    println!(rt; "];")
}
