//! The data of services in XML.

mod reading;
mod writing;
