//! Where the running tree has its services, its socket and its record.
use std::alloc::Global;
use std::rt::Files;
use std::{fs, io};

/// The paths of a running tree.
#[derive(Drop)]
pub struct Places {
    pub services: String,
    pub socket: String,
    pub record: String,
}

impl Places {
    /// The paths below this folder.
    pub fn new(alloc: Global, folder: &str) -> io::Result<Places> {
        Ok(Places {
            services: format!(in alloc; "{folder}/tree")?,
            socket: format!(in alloc; "{folder}/socket")?,
            record: format!(in alloc; "{folder}/record")?,
        })
    }

    /// Makes its services: `log` has a `finish`, `web` says that it is ready, and `broken` can't be
    /// run.
    pub fn make_services<R: Files>(&self, rt: &R, alloc: Global) -> io::Result<()> {
        let services = self.services.as_str();
        make_folder(rt, alloc, services, "broken")?;
        make_file(rt, alloc, services, "log", "run", b"#!/bin/sh\n")?;
        make_file(rt, alloc, services, "log", "finish", b"#!/bin/sh\n")?;
        make_file(rt, alloc, services, "web", "run", b"#!/bin/sh\n")?;
        make_file(rt, alloc, services, "web", "notification-fd", b"3\n")
    }

    /// Makes one more service.
    pub fn make_late<R: Files>(&self, rt: &R, alloc: Global) -> io::Result<()> {
        make_file(
            rt,
            alloc,
            self.services.as_str(),
            "late",
            "run",
            b"#!/bin/sh\n",
        )
    }
}

fn make_folder<R: Files>(rt: &R, alloc: Global, services: &str, name: &str) -> io::Result<()> {
    let path = format!(in alloc; "{services}/{name}")?;
    fs::create_dir_all(rt, path.as_str())
}

// Makes a file of the service of this name, and its folder.
fn make_file<R: Files>(
    rt: &R,
    alloc: Global,
    services: &str,
    name: &str,
    file: &str,
    text: &[u8],
) -> io::Result<()> {
    make_folder(rt, alloc, services, name)?;
    let path = format!(in alloc; "{services}/{name}/{file}")?;
    fs::write(rt, path.as_str(), text)
}
