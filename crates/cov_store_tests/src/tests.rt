mod applying;
mod images;
mod opening;
mod replicas;
