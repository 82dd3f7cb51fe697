//! Components and services, which stand in each other, and tools and metadata, in which these stand.

mod depth;
mod fitting;
mod records;
