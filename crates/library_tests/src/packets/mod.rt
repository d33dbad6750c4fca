//! Tests of packets, keys, customers, their register and its files, and of a client: worked cases, and memory that is refused.

mod budget;
mod client;
mod clock;
mod customer_files;
mod mac;
mod meeting;
mod plain_reader;
mod refused_memory;
mod register;
mod register_file;
mod register_text;
mod request;
mod slots;
mod time;
