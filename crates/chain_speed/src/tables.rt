//! The tables of made networks: the PAT and the maps of programs.

use crate::fields::{close_section, low_bytes, open_section, push_pid};
use crate::plan::{Plan, map_pid, program_number};
use std::alloc::{AllocError, Global};

/// How many bytes of a private descriptor make a map two packets long.
const DESCRIBED: usize = 150;

/// The PAT of all programs.
pub fn association(alloc: Global, plan: &Plan) -> Result<Vec<u8>, AllocError> {
    let mut section = open_section(alloc, 1)?;
    for program in 0..plan.programs {
        section.extend_from_slice(&program_number(program).to_be_bytes())?;
        push_pid(&mut section, map_pid(program))?;
    }
    close_section(&mut section, 0)?;
    Ok(section)
}

/// The map of a program; in an awkward network with a descriptor by which it does not fit one packet.
pub fn map(alloc: Global, plan: &Plan, program: usize) -> Result<Vec<u8>, AllocError> {
    let mut section = open_section(alloc, program_number(program))?;
    push_pid(&mut section, map_pid(program).wrapping_add(1))?;
    if plan.is_awkward {
        let [_, size] = low_bytes(DESCRIBED);
        section.extend_from_slice(&[0xF0, size.wrapping_add(2), 0xC0, size])?;
        for _byte in 0..DESCRIBED {
            section.push(0x55)?;
        }
    } else {
        section.extend_from_slice(&[0xF0, 0])?;
    }
    for stream in &plan.streams {
        if stream.program == program {
            section.push(stream.kind)?;
            push_pid(&mut section, stream.pid)?;
            section.extend_from_slice(&[0xF0, 0])?;
        }
    }
    close_section(&mut section, 2)?;
    Ok(section)
}
