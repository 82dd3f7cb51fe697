//! Dependencies and compositions in XML.

mod reading;
mod writing;
