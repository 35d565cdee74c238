//! Whether what is printed goes to a terminal, and whether it is coloured.

use crate::arguments::{Color, Format};
use rtnl::RowFormat;
use std::env::{self, VarError};
use std::fs;

/// What standard output is, as proc(5) has it.
const STDOUT: &str = "/proc/self/fd/1";

/// The same of standard error.
pub(crate) const STDERR: &str = "/proc/self/fd/2";

/// What the names of terminals begin with: pts(4), tty(4), console(4).
const TERMINALS: [&str; 3] = ["/dev/pts/", "/dev/tty", "/dev/console"];

/// Whether one of the two is a terminal. Where that can't be seen it is none.
pub(crate) fn is_terminal(rt: &HostRuntime, stream: &str) -> bool {
    match fs::read_link(rt, stream) {
        Ok(path) => {
            let name = path.as_str();
            TERMINALS.iter().any(|front| name.starts_with(*front))
        }
        Err(_) => false,
    }
}

/// Whether the variable NO_COLOR is set to any text.
fn is_unwanted(rt: &HostRuntime) -> bool {
    match env::var(rt, "NO_COLOR") {
        Ok(text) => !text.is_empty(),
        Err(VarError::NotPresent) => false,
        Err(VarError::NotUnicode | VarError::OutOfMemory) => true,
    }
}

/// Whether text is coloured.
pub(crate) fn is_coloured(rt: &HostRuntime, color: Color) -> bool {
    match color {
        Color::Auto => is_terminal(rt, STDOUT) && !is_unwanted(rt),
        Color::Always => true,
        Color::Never => false,
    }
}

/// How the rows of bytes are printed.
pub(crate) fn row_format(rt: &HostRuntime, color: Color, format: Format) -> RowFormat {
    match format {
        Format::Json => RowFormat::Json,
        Format::Text if is_coloured(rt, color) => RowFormat::Coloured,
        Format::Text => RowFormat::Text,
    }
}
